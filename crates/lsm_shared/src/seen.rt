// What a client has seen, on its way to another.
ghost use Rattle.std.specs.Prelude.{◌≡◌};
ghost use Rattle.lsm_trail.specs.Knowledge.{told_to, IsToldPass};

use lsm_trail::{Pass, SessionName};
use std::alloc::Allocator;
use std::marker::{Model, PhantomData};

/// What a client has seen of the history, for another client of the session to hear. It has no bytes, and goes to other threads
/// in any way.
#[derive(Drop)]
pub struct Seen<A: Allocator, B: SessionName> {
    pass: Pass<A>,
    name: PhantomData<B>,
}

impl<A: Allocator, B: SessionName> Model for Seen<A, B> {
    ghost use Rattle.std.specs.Prelude.{List};
    ghost use Rattle.std.specs.Coded.{codes};
    ghost use Rattle.lsm_codec.specs.Map.{map_code};
    ghost use Rattle.lsm_trail.specs.History.{Event};

    ghost Value = { List Event };

    ghost coded = { Prim.hlevel (codes, map_code) };

    ghost use Rattle.lsm_trail.specs.Knowledge.{told_to, IsToldPass};

    ghost view = { λ s. told_to s.pass };

    ghost invariant = { λ s. IsToldPass B.id (told_to s.pass) s.pass };
}

impl<A: Allocator, B: SessionName> Seen<A, B> {
    pub(crate) fn new(pass: Pass<A>) -> Seen<A, B>
        requires { IsToldPass B.id (told_to pass) pass }
        ensures { result ≡ told_to pass }
    {
        Seen {
            pass,
            name: PhantomData,
        }
    }

    pub(crate) fn into_pass(self) -> Pass<A>
        ensures { (told_to result ≡ self) × IsToldPass B.id (told_to result) result }
    {
        let Seen { pass, name: _ } = self;
        pass
    }
}
