ghost use Rattle.std.specs.Prelude.{◌≡◌, IfOk};
ghost use Rattle.std.specs.Cmp.{partial_equiv_from_equiv};
ghost use Rattle.tv_value.specs.Views.{values_view};
ghost use Rattle.tv_gate.specs.CallLaws.{calls_alike, calls_equiv};
ghost use Rattle.tv_gate.specs.Sameness.{same_call};
ghost use Rattle.tv_gate.specs.Views.{call_view};
ghost use Rattle.tv_gate.specs.Writes.{call_writes};

use std::alloc::Global;
use std::hash::{Hash, Hasher};
use tv_value::{Items, Name, NoMemory, hash_values, same_lists};

/// A call of a service.
#[derive(Drop)]
pub struct Call {
    pub service: Name,
    pub inputs: Items,
    /// The number of the attempt, from 0.
    pub attempt: u32,
}

impl Call {
    /// The call of this service on copies of these inputs. Linear in their size.
    pub fn of(alloc: Global, service: &str, inputs: &Items, attempt: u32) -> Result<Call, NoMemory>
        ensures { IfOk result (λ c. call_view c ≡ record {
          service = service.now;
          inputs = values_view inputs.now;
          attempt = attempt;
        }) }
    {
        let service = Name::from_str(alloc, service)?;
        let inputs = inputs.copy(alloc)?;
        Ok(Call {
            service,
            inputs,
            attempt,
        })
    }

    /// Whether it is the call of this service on these inputs. Linear in what they have in common. Takes no memory.
    pub fn is(&self, service: &str, inputs: &Items, attempt: u32) -> bool
        ensures { result ≡ same_call (call_view self.now) (record {
          service = service.now;
          inputs = values_view inputs.now;
          attempt = attempt;
        }) }
    {
        self.attempt == attempt
            && (self.service.as_str() == service && same_lists(&self.inputs, inputs))
    }
}

/// Linear in what the two have in common. Takes no memory.
impl PartialEq for Call {
    ghost eq = { λ a b. same_call (call_view a) (call_view b) };

    ghost laws = { partial_equiv_from_equiv calls_equiv };

    fn eq(&self, other: &Call) -> bool {
        self.attempt == other.attempt
            && (self.service == other.service && same_lists(&self.inputs, &other.inputs))
    }
}

impl Eq for Call {
    ghost laws = { calls_equiv };
}

/// Linear in the size of the inputs. Takes no memory.
impl Hash for Call {
    ghost hash_input = { λ c. call_writes (call_view c) };

    ghost respects_eq = { calls_alike };

    fn hash<H: Hasher>(&self, state: &mut H) {
        self.service.as_str().hash(state);
        self.attempt.hash(state);
        hash_values(&self.inputs, state);
    }
}
