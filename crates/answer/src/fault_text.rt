// The line of a fault.
ghost use Rattle.std.specs.Prelude.{◌≡◌, IfOk, string_bytes};
ghost use Rattle.job.specs.Faults.{finding_of};
ghost use Rattle.answer.specs.Lines.{fault_bytes};

use job::fault::Fault;
use lines::fault_line;
use std::alloc::{AllocError, Global};

pub(crate) fn fault_text(heap: Global, fault: &Fault) -> Result<String, AllocError>
    ensures { IfOk result (λ s. string_bytes s ≡ fault_bytes (finding_of fault.now)) }
{
    fault_line(heap, fault.layer(), u32::from(fault.number()), fault.place)
}
