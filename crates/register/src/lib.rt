#![tactic(auto)]
// The control numbers of a group's sets in buckets, each a tree, so that a number used twice is looked for among few. Sets are numbered through
// the groups of an interchange: a link to a set of an earlier group counts as none, so that the links need not be cleared for each group. The trees are
// numbers in a lent array and no boxes: nothing is allocated.
ghost use Rattle.std.specs.Prelude.{◌≡◌, ℕ, suc, ◌+◌, ◌≤◌, length, get_or, drop};
ghost use Rattle.sets.specs.Places.{control_at};
ghost use Rattle.register.specs.Fields.{field_in};
ghost use Rattle.register.specs.Trees as trees;
ghost use Rattle.register.specs.Trees.{bucket_of, bits_at};

use rules::Delimiters;

// The links of the buckets come first, then four for each set. A link is one past the number of the set that it leads to, 0 for none.
pub const BUCKETS: usize = 1024;

// The bucket of a control number.
fn bucket_of(control: &[u8]) -> usize
    ensures { result ≡ bucket_of control.now }
{
    let mut bucket = 0;
    for &b in control {
        bucket = (bucket * 10 + usize::from(b)) % BUCKETS;
    }
    bucket
}

// Where the field that starts at `at` ends.
pub fn field_end(body: &[u8], d: Delimiters, at: usize) -> usize
    ensures { result ≡ at + length (field_in d 0 (drop at body.now)) }
{
    // By index: `position` over the bytes from `at` on takes more instructions for each field.
    for i in at..body.len() {
        if body[i] == d.terminator || body[i] == d.element {
            return i;
        }
    }
    at.max(body.len())
}

// Where the next field of a segment starts, one past the next separator; the end where there is none.
fn next_field(body: &[u8], d: Delimiters, at: usize) -> usize
    ensures { (result ≤ length body.now) × ((n : ℕ) → field_in d (suc n) (drop at body.now) ≡ field_in d n (drop result body.now)) }
{
    let end = field_end(body, d, at);
    match body.get(end) {
        Some(&b) if b != d.terminator => end + 1,
        _ => body.len(),
    }
}

// Where ST02 of the header at `at` starts.
fn control_start(body: &[u8], d: Delimiters, at: usize) -> usize
    ensures { (result ≤ length body.now) × (control_at d body.now at ≡ field_in d 0 (drop result body.now)) }
{
    next_field(body, d, next_field(body, d, at))
}

// Looks for a set with the ST02 `control`, in the tree of its bucket: from each set its next two bits lead to one of four after it. The sets of
// the group are numbered from `first` on. The answer is the slot of the link to enter the number by, `None` where a set has it.
pub fn search(
    body: &[u8],
    d: Delimiters,
    first: usize,
    starts: &[u16],
    links: &[u16],
    control: &[u8],
) -> Option<usize>
    ensures { result ≡ trees.search d body.now first starts.now links.now control.now }
{
    let mut slot = bucket_of(control);
    let mut last = first;
    // No `for` over i: the search ends by an answer, and after a `for` one would be due that is never given.
    let mut i = 0;
    'sets: loop {
        let link = number_at(links, slot);
        if link <= last {
            return Some(slot);
        }
        let k = link - 1;
        let start = control_start(body, d, number_at(starts, k - first));
        slot = BUCKETS + 4 * k + bits_at(control, i);
        last = link;
        i += 1;
        if body.len() - start < control.len() {
            continue 'sets;
        }
        // The last bytes come first, since the numbers of a tree begin alike.
        for j in (0..control.len()).rev() {
            if body[start + j] != control[j] {
                continue 'sets;
            }
        }
        if field_end(body, d, start) == start + control.len() {
            break 'sets None;
        }
    }
}

// Pair i of a control number's bits, from the lowest of its first byte on; 0 past the end.
fn bits_at(control: &[u8], i: usize) -> usize
    ensures { result ≡ bits_at control.now i }
{
    let byte = control.get(i / 4).copied().unwrap_or(0);
    usize::from(byte >> (2 * (i % 4))) % 4
}

// The link at a slot, or where a set of the group starts; 0 past the end.
fn number_at(numbers: &[u16], at: usize) -> usize
    ensures { result ≡ get_or numbers.now at 0 }
{
    usize::from(numbers.get(at).copied().unwrap_or(0))
}
