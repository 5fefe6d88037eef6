// What threads carry along with the words of a session.

use crate::entry::TrailEntry;
use atomic_table::Seat;
use std::alloc::Global;
use std::marker::Model;

/// What a pass knows. No value of it is made.
pub struct Knowledge;

impl Model for Knowledge {
    ghost use Rattle.std.specs.Coded.{codes};
    ghost use Rattle.lsm_codec.specs.Map.{map_code};
    ghost use Rattle.lsm_trail.specs.Knowledge.{View, nobody};

    ghost Value = { View };

    ghost coded = { Prim.hlevel (codes, map_code) };

    ghost view = { λ _. nobody };
}

/// The right to write or read the words of a session, with what its holder knows. It has no bytes.
pub type Pass<A = Global> = Seat<TrailEntry<A>, Knowledge>;
