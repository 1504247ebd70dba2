// A service whose message has a right sum and length: one arm for each operation, which tells its answer, or has an outcome to tell.
// The message's data stand in the block, up to a place.
#![tactic(auto)]

ghost use Rattle.serve_operations.specs.Serves.{Lent, Serves};

use codes_table::{Status, outcome_number};
use document::{Operation, Service};
use serve_answers::{describe, describe_briefly, status_alone};
use serve_application::{command_result, send_command};
use serve_reads::{measure_string, read};
use serve_recorder::{prepare_and_start, query_buffer, start, status, stop};
use serve_scope::read_scope;
use serve_scope_setup::set_up_scope;
use serve_tables::tell_table;
use serve_writes::{write, write_masked};
use state_block::BODY;

pub fn serve(
    service: Service,
    state: &mut [u8],
    to: usize,
    memory: &mut [u8],
    out: &mut [u8],
) -> usize
    requires { Lent service to state.old memory.old out.old }
    ensures { Serves service to state.old memory.old out.old result out.new state.new memory.new }
{
    let operation = service.operation;
    let outcome = match operation {
        Operation::Unserved => Err(Status::NotServed),
        Operation::Describe => return describe(out),
        Operation::DescribeBriefly => return describe_briefly(out),
        Operation::Read => return read(service, &state[BODY..to], memory, out),
        Operation::Write => write(service, &state[BODY..to], memory),
        Operation::WriteMasked => write_masked(service, &state[BODY..to], memory),
        Operation::SetUpScope => set_up_scope(state, service, to),
        Operation::ReadScope => return read_scope(state, memory, out),
        Operation::PrepareAndStart => prepare_and_start(state, service, to),
        Operation::Start => start(state),
        Operation::Stop => stop(state),
        Operation::Status => Err(status(state)),
        Operation::QueryBuffer => return query_buffer(state, service, out),
        Operation::SendCommand => send_command(state, to),
        Operation::CommandResult => return command_result(state, out),
        Operation::TellTable => return tell_table(state, to, out),
        Operation::MeasureString => {
            return measure_string(service, &state[BODY..to], memory, out);
        }
    };
    status_alone(outcome_number(outcome), out)
}
