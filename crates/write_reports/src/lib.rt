// What writing answered, reported to programs in C and Rust: the length is set, and the result is 0 or the refusal's number.
#![tactic(auto)]

pub mod by_plan; // by_plan.rt: of writing by a plan

ghost use Rattle.std.specs.Prelude.{◌≡◌};
ghost use Rattle.write_answer.specs.Answers as writers;
ghost use Rattle.write_reports.specs.Numbers.{report};

pub fn written(answer: write_answer::Answer, size: &mut u64) -> u8
    ensures { report result size.new ≡ writers.report_of answer }
{
    match answer {
        Ok(n) => {
            *size = n as u64;
            0
        }
        Err(refusal) => {
            *size = 0;
            draft::number(refusal)
        }
    }
}
