// The whole output of the program `busplan` for the bytes of a table in the new form.
#![tactic(auto)]

ghost use Rattle.std.specs.Prelude.{◌≡◌, ◌≢◌};
ghost use Rattle.refusal.specs.Causes.{number_in};
ghost use Rattle.newform.specs.Limits.{new};
ghost use Rattle.text.specs.Shown.{shown};
ghost use Rattle.report.specs.Output.{output_of};
ghost use Rattle.report.specs.Reported.{Reported, PlanReadBack};
ghost use Rattle.bus.specs.Limits.{bus};

use text::Text;

// The program's output for the bytes of a table for bus drives: the plan, or the first refusal alone. Unless that is number 22, it is the
// output of `millplan`, byte for byte.
pub fn report(table: &[u8]) -> Text
    ensures answer { shown result ≡ output_of (bus table.now) }
    ensures reported { Reported (bus table.now) (shown result) }
    ensures read_back { PlanReadBack (bus table.now) (shown result) }
    ensures agrees { number_in (bus table.now).outcome ≢ 22 → shown result ≡ output_of (new table.now) }
{
    let reading = bus::read_bus(table);
    report::report_read(reading)
}
