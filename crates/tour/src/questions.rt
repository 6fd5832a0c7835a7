// The questions of the tour.
use crate::names::{
    AUTHOR, EDITION_1861, EDITION_1872, HEADING, LEAGUES, MOBY_DICK, SEA_STORIES, WALDEN,
};
use quads::{Pattern, Place};

// Who wrote what?
pub(crate) const AUTHORS: Pattern = Pattern {
    p: Place::Given(AUTHOR),
    ..Pattern::ANY
};

// Under which headings are the works?
pub(crate) const HEADINGS: Pattern = Pattern {
    p: Place::Given(HEADING),
    ..Pattern::ANY
};

// Which works are sea stories?
pub(crate) const OF_THE_SEA: Pattern = Pattern {
    o: Place::Given(SEA_STORIES),
    ..HEADINGS
};

// What is said of Walden?
pub(crate) const ABOUT_WALDEN: Pattern = Pattern {
    s: Place::Given(WALDEN),
    ..Pattern::ANY
};

// What is said of Vingt mille lieues sous les mers?
pub(crate) const ABOUT_LEAGUES: Pattern = Pattern {
    s: Place::Given(LEAGUES),
    ..Pattern::ANY
};

// What stood in the 1861 edition?
pub(crate) const IN_1861: Pattern = Pattern {
    g: Place::Given(EDITION_1861),
    ..Pattern::ANY
};

// Under which headings did the 1872 edition have Moby-Dick?
pub(crate) const MOBY_DICK_IN_1872: Pattern = Pattern {
    s: Place::Given(MOBY_DICK),
    g: Place::Given(EDITION_1872),
    ..HEADINGS
};

// A question with a number that stands for nothing.
pub(crate) const ABOUT_NOTHING: Pattern = Pattern {
    s: Place::Given(0),
    ..Pattern::ANY
};
