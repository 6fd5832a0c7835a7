// The numbers that stand for works, properties, values and editions of the catalogue, and their names.

pub(crate) const MOBY_DICK: u32 = 101;

pub(crate) const WALDEN: u32 = 102;

pub(crate) const MIDDLEMARCH: u32 = 103;

pub(crate) const LITTLE_WOMEN: u32 = 104;

pub(crate) const LEAGUES: u32 = 105;

pub(crate) const AUTHOR: u32 = 1;

pub(crate) const HEADING: u32 = 2;

pub(crate) const LANGUAGE: u32 = 3;

pub(crate) const PUBLISHER: u32 = 4;

pub(crate) const MELVILLE: u32 = 201;

pub(crate) const THOREAU: u32 = 202;

pub(crate) const ELIOT: u32 = 203;

pub(crate) const ALCOTT: u32 = 204;

pub(crate) const VERNE: u32 = 205;

pub(crate) const WHALING: u32 = 221;

pub(crate) const SEA_STORIES: u32 = 222;

pub(crate) const COUNTRY_LIFE: u32 = 223;

pub(crate) const NATURE: u32 = 224;

pub(crate) const FAMILIES: u32 = 225;

pub(crate) const SUBMARINES: u32 = 226;

pub(crate) const ENGLISH: u32 = 241;

pub(crate) const FRENCH: u32 = 242;

pub(crate) const HARPER: u32 = 261;

pub(crate) const TICKNOR: u32 = 262;

pub(crate) const BLACKWOOD: u32 = 263;

pub(crate) const ROBERTS: u32 = 264;

pub(crate) const HETZEL: u32 = 265;

pub(crate) const EDITION_1861: u32 = 301;

pub(crate) const EDITION_1872: u32 = 302;

pub(crate) const EDITION_1881: u32 = 303;

// What each number stands for.
const NAMES: [(u32, &str); 30] = [
    (MOBY_DICK, "Moby-Dick"),
    (WALDEN, "Walden"),
    (MIDDLEMARCH, "Middlemarch"),
    (LITTLE_WOMEN, "Little Women"),
    (LEAGUES, "Vingt mille lieues sous les mers"),
    (AUTHOR, "author"),
    (HEADING, "subject heading"),
    (LANGUAGE, "language"),
    (PUBLISHER, "publisher"),
    (MELVILLE, "Melville, Herman"),
    (THOREAU, "Thoreau, Henry David"),
    (ELIOT, "Eliot, George"),
    (ALCOTT, "Alcott, Louisa May"),
    (VERNE, "Verne, Jules"),
    (WHALING, "Whaling"),
    (SEA_STORIES, "Sea stories"),
    (COUNTRY_LIFE, "Country life"),
    (NATURE, "Nature"),
    (FAMILIES, "Families"),
    (SUBMARINES, "Submarines"),
    (ENGLISH, "English"),
    (FRENCH, "French"),
    (HARPER, "Harper & Brothers"),
    (TICKNOR, "Ticknor and Fields"),
    (BLACKWOOD, "William Blackwood and Sons"),
    (ROBERTS, "Roberts Brothers"),
    (HETZEL, "Hetzel"),
    (EDITION_1861, "1861 edition"),
    (EDITION_1872, "1872 edition"),
    (EDITION_1881, "1881 edition"),
];

// The name of what the number stands for.
pub(crate) fn name_of(id: u32) -> &'static str {
    NAMES
        .iter()
        .find(|(number, _)| *number == id)
        .map_or("(unknown)", |(_, name)| name)
}
