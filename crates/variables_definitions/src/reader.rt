// The small reader: a data part, the place where the next definition begins, and how wide its addresses are.
ghost use Rattle.std.specs.Prelude.{◌≡◌, ◌-◌, ◌≤◌, length};
ghost use Rattle.std.specs.Iterator.{at_most};
ghost use Rattle.document.specs.Variables.{address_width};
ghost use Rattle.variables_definitions.specs.Parts.{is_there, definition_at, place_behind, moved_behind};

use document::Variable;

// An address takes so many bytes, here and wherever else a message holds one.
pub fn address_width(ex: bool) -> usize
    ensures { (result ≡ address_width ex) × (result ≤ 4) }
{
    if ex { 4 } else { 2 }
}

fn is_there(part: &[u8], at: usize, ex: bool) -> bool
    ensures { result ≡ is_there ex part.now at }
{
    part.len().saturating_sub(at) > address_width(ex)
}

// A definition, or nothing where too few bytes are left.
fn definition_at(part: &[u8], at: usize, ex: bool) -> Option<Variable>
    ensures { result ≡ definition_at ex part.now at }
{
    if !is_there(part, at, ex) {
        return None;
    }
    Some(Variable {
        address: memory_ranges::number_at(part, at + 1, address_width(ex)),
        size: part[at],
    })
}

// Behind the definition at a place, or that place where there is none.
fn place_behind(part: &[u8], at: usize, ex: bool) -> usize
    ensures { result ≡ place_behind ex part.now at }
{
    if !is_there(part, at, ex) {
        return at;
    }
    at + 1 + address_width(ex)
}

// The definitions of a data part from a place on, each as a variable. It counts none of them: who wants so many of them takes so many.
#[derive(Clone, Copy)]
pub struct Reader<'a> {
    pub part: &'a [u8],
    pub at: usize,
    pub ex: bool,
}

impl<'a> Iterator for Reader<'a> {
    type Item = Variable;

    // Each definition begins where the one before it ended: the reader moves behind the one that it gives.
    ghost next_gives = { λ before found after. (found ≡ definition_at before.ex before.part.now before.at) × (after ≡ moved_behind before) };

    ghost remaining = { λ reader. at_most (length reader.part.now - reader.at) };

    fn next(&mut self) -> Option<Variable> {
        let found = definition_at(self.part, self.at, self.ex);
        self.at = place_behind(self.part, self.at, self.ex);
        found
    }
}
