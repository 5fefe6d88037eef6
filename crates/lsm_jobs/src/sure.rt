//! Laws of images that surely find room, and of how many blocks they take.

ghost use Rattle.lsm_jobs.specs.MergedBlocks.{MergedBlocksLaw};
ghost use Rattle.lsm_jobs.specs.SureRoom.{SureRoomLaw};

/// A result whose images have sure room, as `Extents::surely_places` tells of their blocks, is not refused for want of it.
pub fn sure_room_is_found()
    ensures { SureRoomLaw }
{}

/// What a merge keeps takes few blocks more than the run below.
pub fn merged_blocks_are_few()
    ensures { MergedBlocksLaw }
{}
