ghost use Rattle.std.specs.Prelude.{◌≡◌, ◌≤◌, ◌<◌, length};
ghost use Rattle.ad.specs.Layout.{ad_words};

use syntax::Binary;

// A stored ad as it is lent: the words of its nodes and definitions, and the bytes of its names and strings. The words have the room of
// an ad; what they hold may be anything.
#[derive(Clone, Copy)]
pub struct StoredAd<'a> {
    pub words: &'a [u64],
    pub bytes: &'a [u8],
    ghost room: { ad_words ≤ length words.now },
}

impl<'a> StoredAd<'a> {
    ghost use Rattle.syntax.specs.Bounds.{max_definitions, max_nodes};
    ghost use Rattle.text.specs.Strings.{same_name};
    ghost use Rattle.ad.specs.Stored.{kind_of, kind_at, binary_of, operand_at, offset_at, length_at, root_at, bytes_at, name_at};
    ghost use Rattle.ad.specs.Inner.Names.{defined_in};

    // The number that stands for the kind of node i, whatever it is.
    #[inline(always)]
    pub fn code(self, i: usize) -> u64
        requires { i < max_nodes }
        ensures { result ≡ kind_at self.entry.words.now i }
    {
        self.words[4 * i]
    }

    // The kind of node i; none where its number is no kind's.
    #[inline(always)]
    pub fn kind(self, i: usize) -> Option<super::Kind>
        requires { i < max_nodes }
        ensures { result ≡ kind_of (kind_at self.entry.words.now i) }
    {
        super::Kind::try_from(self.code(i)).ok()
    }

    // The operator of two operands that node i is.
    #[inline(always)]
    pub fn binary(self, i: usize) -> Binary
        requires node { i < max_nodes }
        requires operator { (12 < kind_at self.words.now i) × (kind_at self.words.now i < 28) }
        ensures { result ≡ binary_of (kind_at self.entry.words.now i) }
    {
        match self.kind(i).unwrap() {
            super::Kind::Binary(j) => j,
            _ => unreachable!(),
        }
    }

    // Node i's operand or datum j.
    #[inline(always)]
    pub fn operand(self, i: usize, j: usize) -> usize
        requires { (i < max_nodes) × (j < 3) }
        ensures { result ≡ operand_at self.entry.words.now i j }
    {
        self.words[4 * i + 1 + j] as usize
    }

    // The root of definition j.
    #[inline(always)]
    pub fn root(self, j: usize) -> usize
        requires { j < max_definitions }
        ensures { result ≡ root_at self.entry.words.now j }
    {
        self.words[super::NODE_WORDS + 3 * j + 2] as usize
    }

    // The offset of the name of definition j.
    #[inline(always)]
    pub fn offset(self, j: usize) -> usize
        requires { j < max_definitions }
        ensures { result ≡ offset_at self.entry.words.now j }
    {
        self.words[super::NODE_WORDS + 3 * j] as usize
    }

    // The length of the name of definition j.
    #[inline(always)]
    pub fn name_length(self, j: usize) -> usize
        requires { j < max_definitions }
        ensures { result ≡ length_at self.entry.words.now j }
    {
        self.words[super::NODE_WORDS + 3 * j + 1] as usize
    }

    // The bytes from a place on, cut to what the memory holds.
    #[inline(always)]
    pub fn part(self, at: usize, len: usize) -> &'a [u8]
        ensures { result.now ≡ bytes_at self.entry.bytes.now at len }
    {
        parts::cut(self.bytes, at, len)
    }

    // The name of definition j.
    #[inline(always)]
    pub fn name(self, j: usize) -> &'a [u8]
        requires { j < max_definitions }
        ensures { result.now ≡ bytes_at self.entry.bytes.now (offset_at self.entry.words.now j) (length_at self.entry.words.now j) }
    {
        let at = self.offset(j);
        let len = self.name_length(j);
        self.part(at, len)
    }

    // The name of the reference i.
    #[inline(always)]
    pub fn reference_name(self, i: usize) -> &'a [u8]
        requires { i < max_nodes }
        ensures { result.now ≡ name_at self.entry.words.now self.entry.bytes.now i }
    {
        let at = self.operand(i, 0);
        let len = self.operand(i, 1);
        self.part(at, len)
    }

    // Whether definition j has this name.
    pub fn has_name(self, j: usize, name: &[u8]) -> bool
        requires { j < max_definitions }
        ensures { result ≡ same_name (bytes_at self.entry.bytes.now (offset_at self.entry.words.now j) (length_at self.entry.words.now j)) name.now }
    {
        text::same_name(self.name(j), name)
    }

    // Whether one of the first d stored definitions has a name.
    pub fn defined(self, d: usize, name: &[u8]) -> bool
        requires { d ≤ max_definitions }
        ensures { result ≡ defined_in self.entry.words.now self.entry.bytes.now name.now 0 d }
    {
        for j in 0..d {
            if self.has_name(j, name) {
                return true;
            }
        }
        false
    }
}
