// The registered tables over the line: 0x11.
#![tactic(auto)]

ghost use Rattle.std.specs.Prelude.{◌≡◌, ◌&&◌, List, ℕ, ◌≤◌, ltb, length};
ghost use Rattle.document.specs.Numbers.{answer_room, done};
ghost use Rattle.document.specs.Tables.{most_tables, table_answer};
ghost use Rattle.document.specs.Commands.{served};
ghost use Rattle.document.specs.declared.Operation.TheVariants.{TellTable};
ghost use Rattle.document.specs.declared.Service.{Service};
ghost use Rattle.document_outcomes.specs.Known.{known_as};
ghost use Rattle.line_wire.specs.Told.{Told};
ghost use Rattle.tables_state.specs.State.{tables_of};
ghost use Rattle.state_parts.specs.State.{gate_of};
ghost use Rattle.state_block.specs.Places.{body_place, scope_place, state_length};
ghost use Rattle.state_block.specs.Layout.{data_to, decoded_tables, decoded_instruments};

use bytes_fields::Field;
use codes_table::LAYOUT_WRONG;
use serve_answers::{done_words, status_alone};
use state_block::{BODY, LIST, TABLES};
use tables_state::{MOST_TABLES, PAIR};

// The list has room for so many, whatever the count says.
fn is_listed(state: &[u8], index: usize) -> bool
    requires { state_length ≤ length state.now }
    ensures { result ≡ ltb index (decoded_tables state.now).count && ltb index most_tables }
{
    index < usize::from(state[TABLES]) && index < usize::from(MOST_TABLES)
}

// Flags 2, then size and address as the list has them; zeros beyond the last.
fn tell_listed(state: &[u8], index: usize, out: &mut [u8]) -> usize
    requires { (state_length ≤ length state.now) × (answer_room ≤ length out.old) }
    ensures { Told (record { status = done; body = table_answer (tables_of (decoded_tables state.now)) index }) out.old result out.new }
{
    if !is_listed(state, index) {
        return done_words(&[0, 0, 0], out);
    }
    let at = LIST + index * PAIR;
    done_words(&[2, u16::at(state, at + 2), u16::at(state, at)], out)
}

// The message's data, which stand in the block up to a place, are the index.
pub fn tell_table(state: &[u8], to: usize, out: &mut [u8]) -> usize
    requires { (state_length ≤ length state.now) × (body_place ≤ to) × (to ≤ scope_place) × (answer_room ≤ length out.old) }
    ensures { (memory : List ℕ) (s : Service) → Told (served (gate_of (decoded_instruments state.now) memory) (known_as TellTable s) (data_to state.now to)).answer out.old result out.new }
{
    if to != BODY + 2 {
        return status_alone(LAYOUT_WRONG, out);
    }
    tell_listed(state, usize::from(u16::at(state, BODY)), out)
}
