// What writing by a plan answered, reported likewise.
ghost use Rattle.std.specs.Prelude.{◌≡◌};
ghost use Rattle.plan_writer.specs.Answers as planners;
ghost use Rattle.write_reports.specs.Numbers.{plan_report};

use plan_writer::PlanRefusal;

pub fn planned(answer: plan_writer::Answer, size: &mut u64) -> u8
    ensures { plan_report result size.new ≡ planners.report_of answer }
{
    match answer {
        Ok(n) => {
            *size = n as u64;
            0
        }
        Err(refusal) => {
            *size = 0;
            match refusal {
                PlanRefusal::Refused(refusal) => draft::number(refusal),
                PlanRefusal::NotTaken => 24,
            }
        }
    }
}
