//! The three headers of a disk, and the revisions of the standard that are read. docs/FORMAT.md#header
ghost use Rattle.std.specs.Prelude.{◌≡◌};
ghost use Rattle.ddf_header.specs.Layout.{kind_code, revision_text, revision_of};

/// Which of a disk's three headers.
#[derive(Clone, Copy, PartialEq, Eq)]
pub enum HeaderKind {
    /// In the disk's last sector.
    Anchor,
    /// In front of the primary copy.
    Primary,
    /// In front of the secondary copy.
    Secondary,
}

impl HeaderKind {
    /// The type byte of such a header.
    pub fn code(self) -> u8
        ensures { result ≡ kind_code self }
    {
        match self {
            HeaderKind::Anchor => 0,
            HeaderKind::Primary => 1,
            HeaderKind::Secondary => 2,
        }
    }
}

/// A revision of the standard.
#[derive(Clone, Copy, PartialEq, Eq)]
pub enum Revision {
    /// `01.00.00`
    R100,
    /// `01.02.00`
    R120,
    /// `02.00.00`
    R200,
}

impl Revision {
    /// The eight ASCII characters that stand in a header.
    pub fn text(self) -> [u8; 8]
        ensures { result ≡ revision_text self }
    {
        match self {
            Revision::R100 => *b"01.00.00",
            Revision::R120 => *b"01.02.00",
            Revision::R200 => *b"02.00.00",
        }
    }

    /// The revision that these characters name, if it is known.
    #[tactic(auto, unfolding(crate::specs::Layout::revision_of))]
    pub fn from_text(text: &[u8]) -> Option<Revision>
        ensures { result ≡ revision_of text.now }
    {
        if text == b"01.00.00".as_slice() {
            Some(Revision::R100)
        } else if text == b"01.02.00".as_slice() {
            Some(Revision::R120)
        } else if text == b"02.00.00".as_slice() {
            Some(Revision::R200)
        } else {
            None
        }
    }
}
