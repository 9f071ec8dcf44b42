#![tactic(auto)]
// A segment is a part of the interchange, without its terminator. Its fields are cut at the separator e; field 0 is the id. The two are no
// struct: it would be made anew of each part that a caller cuts.
ghost use Rattle.std.specs.Prelude.{◌≡◌, length};
ghost use Rattle.rules.specs.Cutting as cutting;
ghost use Rattle.rules.specs.Elements.{present};

// Field n, the empty part where there is none.
pub fn field(s: &[u8], e: u8, n: usize) -> &[u8]
    ensures { result.now ≡ cutting.field (cutting.split e s.now) n }
{
    let mut at = 0;
    for _ in 0..n {
        let end = text::find_near(s, at, e);
        if s.len() <= end {
            return &[];
        }
        at = end + 1;
    }
    let end = text::find_near(s, at, e);
    &s[at..end]
}

// The id: what stands before the first separator.
pub fn id(s: &[u8], e: u8) -> &[u8]
    ensures { result.now ≡ cutting.field (cutting.split e s.now) 0 }
{
    field(s, e, 0)
}

// The id is `name`.
pub fn is_named(s: &[u8], e: u8, name: &[u8]) -> bool
    ensures { result ≡ cutting.is_named name.now (cutting.split e s.now) }
{
    // An id ends at the first separator, so a name that holds one names nothing.
    s.starts_with(name) && !name.contains(&e) && s.get(name.len()).is_none_or(|&b| b == e)
}

// Field n is there and not empty.
pub fn is_present(s: &[u8], e: u8, n: usize) -> bool
    ensures { result ≡ present (cutting.split e s.now) n }
{
    !field(s, e, n).is_empty()
}

// How many fields there are, the id among them.
pub fn field_count(s: &[u8], e: u8) -> usize
    ensures { result ≡ length (cutting.split e s.now) }
{
    // Not by `split`, which stops at each separator: this compares several bytes at once.
    let mut separators = 0;
    for &b in s {
        separators += usize::from(b == e);
    }
    separators + 1
}
