//! Tables of a plain machine, without their versions.

use crate::plain::keeping::Version;
use crate::plain::step::TableTold;
use lsm_device::Refusal;

/// A range of keys: the first and the last of them. It is empty where the last one is below the first.
#[derive(Clone, Copy)]
pub(crate) struct Hull {
    first: u8,
    last: u8,
}

impl Hull {
    /// No key.
    pub(crate) const EMPTY: Hull = Hull {
        first: u8::MAX,
        last: 0,
    };

    /// The range that has two.
    pub(crate) fn and(self, other: Hull) -> Hull {
        Hull {
            first: self.first.min(other.first),
            last: self.last.max(other.last),
        }
    }

    pub(crate) fn meets(self, other: Hull) -> bool {
        self.first <= other.last && other.first <= self.last
    }

    /// Whether it ends before another begins.
    pub(crate) fn ends_before(self, other: Hull) -> bool {
        self.last < other.first
    }

    /// Whether it has a key.
    pub(crate) fn has(self, key: u8) -> bool {
        self.first <= key && key <= self.last
    }
}

/// Where the outputs of a job stand: in a level, and of level 0 in the run of a number.
#[derive(Clone, Copy)]
pub(crate) struct Place {
    pub(crate) level: usize,
    pub(crate) run: u64,
}

/// A table. So few keys are in one that its index has one block.
#[derive(Clone, Copy)]
pub(crate) struct Table {
    pub(crate) number: u64,
    pub(crate) level: usize,
    /// In level 0 the number of the first table of its run.
    pub(crate) run: u64,
    pub(crate) hull: Hull,
    pub(crate) data_blocks: u64,
    /// Whether half of its versions or more are deletes.
    pub(crate) is_mostly_deletes: bool,
}

/// What a job takes in of a level: the oldest runs of level 0, or neighbours of a deeper one. A merge takes in the tables of the
/// next level too that have a key between theirs, a rewrite none.
#[derive(Clone, Copy)]
pub(crate) struct Upper {
    pub(crate) level: usize,
    /// Of level 0 the number of the newest run.
    newest: u64,
    hull: Hull,
    pub(crate) is_rewrite: bool,
}

impl Upper {
    /// Those from one table to another of the same level, or of the oldest runs.
    pub(crate) fn from(first: Table, last: Table) -> Upper {
        Upper {
            level: first.level,
            newest: first.run.max(last.run),
            hull: first.hull.and(last.hull),
            is_rewrite: false,
        }
    }

    /// With another table of the same level.
    pub(crate) fn and(self, next: Table) -> Upper {
        Upper {
            level: self.level,
            newest: self.newest.max(next.run),
            hull: self.hull.and(next.hull),
            is_rewrite: self.is_rewrite,
        }
    }

    /// The same tables, which are written anew in their own place.
    pub(crate) fn rewritten(self) -> Upper {
        Upper {
            level: self.level,
            newest: self.newest,
            hull: self.hull,
            is_rewrite: true,
        }
    }

    /// Whether a table is one of these.
    pub(crate) fn has(self, table: Table) -> bool {
        if table.level != self.level {
            return false;
        }
        if table.level == 0 {
            return table.run <= self.newest;
        }
        table.hull.meets(self.hull)
    }

    /// Whether the job takes in a table: one of these, or of a merge one of the next level that has a key between theirs.
    pub(crate) fn takes_in(self, table: Table) -> bool {
        if table.level == self.level {
            return self.has(table);
        }
        let is_next = table.level == self.level.wrapping_add(1);
        !self.is_rewrite && is_next && table.hull.meets(self.hull)
    }

    /// The level above that of the job's outputs.
    pub(crate) fn above(self) -> usize {
        if self.is_rewrite {
            return self.level.wrapping_sub(1);
        }
        self.level
    }
}

/// The data blocks of a table of versions: each version goes into the block that is begun if it fits, else into the next.
fn data_blocks(versions: &[Version]) -> u64 {
    let mut blocks = 0_u64;
    let mut used = u32::MAX;
    for version in versions {
        let size = version.size();
        if used.saturating_add(size) > 4_096 {
            blocks = blocks.wrapping_add(1);
            used = 2;
        }
        used = used.wrapping_add(size);
    }
    blocks
}

fn is_mostly_deletes(versions: &[Version]) -> bool {
    let mut puts = 0_usize;
    for version in versions {
        if version.value.is_some() {
            puts = puts.wrapping_add(1);
        }
    }
    puts <= versions.len().wrapping_sub(puts)
}

fn hull_of(versions: &[Version]) -> Hull {
    let mut hull = Hull::EMPTY;
    for version in versions {
        hull = hull.and(Hull {
            first: version.key,
            last: version.key,
        });
    }
    hull
}

impl Table {
    /// The table of some versions.
    pub(crate) fn of(number: u64, place: Place, versions: &[Version]) -> Table {
        Table {
            number,
            level: place.level,
            run: place.run,
            hull: hull_of(versions),
            data_blocks: data_blocks(versions),
            is_mostly_deletes: is_mostly_deletes(versions),
        }
    }

    /// Its blocks: of data, and one each for filter, index and footer.
    pub(crate) fn blocks(self) -> u64 {
        self.data_blocks.wrapping_add(3)
    }

    /// It alone as what a job takes in of its level.
    pub(crate) fn alone(self) -> Upper {
        Upper::from(self, self)
    }

    /// Whether it is numbered below another, if there is one.
    pub(crate) fn is_less(self, other: Option<Table>) -> bool {
        match other {
            Some(other) => self.number < other.number,
            None => true,
        }
    }

    /// Whether it is the first of a run of level 0.
    pub(crate) fn begins_run(self) -> bool {
        self.level == 0 && self.number == self.run
    }

    /// Whether it stands before another: in a higher level, of level 0 in a newer run, and of one run before its keys.
    fn stands_before(self, other: Table) -> bool {
        if self.level != other.level {
            return self.level < other.level;
        }
        if self.level == 0 && self.run != other.run {
            return self.run > other.run;
        }
        self.hull.ends_before(other.hull)
    }

    pub(crate) fn told(self) -> TableTold {
        TableTold {
            number: self.number,
            level: self.level,
            first: self.hull.first,
            last: self.hull.last,
            blocks: self.blocks(),
        }
    }
}

/// Puts a table among others, before the first that it stands before.
pub(crate) fn put(tables: &mut Vec<Table>, table: Table) -> Result<(), Refusal> {
    let mut place = 0_usize;
    for other in tables.iter() {
        if table.stands_before(*other) {
            break;
        }
        place = place.wrapping_add(1);
    }
    if place <= tables.len() {
        tables.insert(place, table)?;
    }
    Ok(())
}
