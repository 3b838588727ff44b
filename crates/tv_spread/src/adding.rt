//! New jobs become idle.
ghost use Rattle.std.specs.Prelude.{◌≡◌, ◌<◌, ◌≤◌, ◌-◌, not, count_by, drop, length};
ghost use Rattle.tv_lemmas.specs.Members.{Each};
ghost use Rattle.tv_intake.specs.Intaken.{AreIntaken, known_jobs};
ghost use Rattle.tv_idle.specs.Idles.{of_step};
ghost use Rattle.tv_spread.specs.Spreads.{IsAt, is_faulty_now, with_all_new};

use tv_idle::Idle;
use tv_intake::Intakes;

/// The known jobs from this number on, which are a step's, are idle. Takes no memory.
pub fn add_known(intakes: &Intakes, idle: &mut Idle, step: u32, from: usize)
    requires sound { AreIntaken intakes.now }
    requires within { step < length idle.old.steps }
    requires places { Each (IsAt step (of_step idle.old.steps step).levels)
        (drop from (known_jobs intakes.now)) }
    requires good { count_by (λ x. not (is_faulty_now intakes.now x))
        (drop from (known_jobs intakes.now)) ≤ (of_step idle.old.steps step).good_room }
    requires faulty { count_by (is_faulty_now intakes.now) (drop from (known_jobs intakes.now))
        ≤ (of_step idle.old.steps step).faulty_room }
    requires numbers { length (drop from (known_jobs intakes.now)) ≤ idle.old.room }
    ensures { idle.new ≡ with_all_new (is_faulty_now intakes.now)
        (drop from (known_jobs intakes.now)) idle.old }
{
    for number in from..intakes.known() {
        let (_step, place, faulty) = intakes.job(number);
        let _number = idle.add(step, place, faulty);
    }
}
