//! Places of faults. Contracts see the place alone, so that what is told beside it binds no check and no run.

ghost use Rattle.std.specs.Prelude.{◌≡◌};

use places::{Detail, Place};
use std::fmt;
use std::marker::Model;

/// The place of a fault, and what was found there, which contracts don't see.
#[derive(Drop)]
pub struct FaultPlace {
    place: Place,
    detail: Detail,
}

impl Model for FaultPlace {
    ghost use Rattle.places.specs.declared.place.Place.{Place};

    ghost Value = { Place };

    ghost view = { λ f. f.place };
}

impl FaultPlace {
    /// A place of which nothing more is told.
    pub fn at(place: Place) -> FaultPlace
        ensures { result ≡ place }
    {
        FaultPlace::told(place, Detail::none())
    }

    /// A place with what was found there.
    pub fn told(place: Place, detail: Detail) -> FaultPlace
        ensures { result ≡ place }
    {
        FaultPlace { place, detail }
    }

    pub fn place(&self) -> Place
        ensures { result ≡ self.now }
    {
        self.place
    }

    /// What was found there.
    pub fn into_detail(self) -> Detail {
        self.detail
    }
}

impl fmt::Debug for FaultPlace {
    fn fmt<W: fmt::Write>(&self, f: &mut fmt::Formatter<W>) -> fmt::Result {
        write!(f, "{}", self.place)
    }
}

impl fmt::Display for FaultPlace {
    fn fmt<W: fmt::Write>(&self, f: &mut fmt::Formatter<W>) -> fmt::Result {
        write!(f, "{}", self.place)
    }
}
