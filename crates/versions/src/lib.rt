//! versions: what the version of a plan file decides, as numbers for code to go by.
//!
//! Every reader and writer is given a `Version` and is one function for both: no function asks which of the two it is.
#![tactic(auto)]

ghost use Rattle.std.specs.Prelude.{◌≡◌};
ghost use Rattle.cpl.specs.Limits as cpl;
ghost use Rattle.versions.specs.Versions.{version_of};

/// The number behind the mark. The bytes of a count that `columns` or `items` limits, and of a column index. The most columns of a table, of a
/// scan's list and of a key; the most items of a list; the most fields of a node. The bytes of the counts of keys and of filters, and the most of each.
#[derive(Clone, Copy)]
pub struct Version {
    pub number: u64,
    pub wide: usize,
    pub columns: u64,
    pub items: u64,
    pub fields: usize,
    pub late: usize,
    pub keys: u64,
    pub filters: u64,
}

/// Version 1 of the format.
pub fn version1() -> Version
    ensures { version_of result ≡ cpl.version1 }
{
    Version {
        number: 1,
        wide: 1,
        columns: 64,
        items: 128,
        fields: 128,
        late: 0,
        keys: 0,
        filters: 0,
    }
}

/// Version 2 of the format.
pub fn version2() -> Version
    ensures { version_of result ≡ cpl.version2 }
{
    Version {
        number: 2,
        wide: 2,
        columns: 512,
        items: 512,
        fields: 512,
        late: 1,
        keys: 16,
        filters: 16,
    }
}
