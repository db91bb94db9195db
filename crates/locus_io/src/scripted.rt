//! A stopper in memory, which answers as a test wants it.

ghost use Rattle.std.specs.Prelude.{◌≡◌, ◌≢◌, ◌≤◌, Some, None, true, IfOk};
ghost use Rattle.locus_io.specs.Memory.{answer_at, counted};

use crate::outside::Stopper;
use lists::NoMemory;
use std::alloc::Global;
use std::marker::Model;

/// Gives some answers in order, and says no after their end.
#[derive(Debug, Drop)]
pub struct ScriptedStopper {
    answers: Vec<bool>,
    asked: u64,
    stops: u64,
    last_stop: Option<String>,
}

impl Model for ScriptedStopper {
    ghost use Rattle.std.specs.Prelude.{option_map, string_bytes};
    ghost use Rattle.locus_io.specs.Memory.{StopperInMemory};

    ghost Value = { StopperInMemory };

    ghost view = { λ inside. record {
      answers = inside.answers.items;
      asked = inside.asked;
      stops = inside.stops;
      last_stop = option_map string_bytes inside.last_stop;
    } };
}

impl ScriptedStopper {
    /// A stopper that gives these answers in order, and says no after their end.
    pub fn new(answers: Vec<bool>) -> ScriptedStopper
        ensures { result ≡ record { answers = answers.items; asked = 0; stops = 0; last_stop = None } }
    {
        ScriptedStopper {
            answers,
            asked: 0,
            stops: 0,
            last_stop: None,
        }
    }

    /// How often it was asked so far. The count stays at its last value, 2^64 - 1.
    pub fn asked(&self) -> u64
        ensures { result ≡ self.now.asked }
    {
        self.asked
    }
}

impl Stopper for ScriptedStopper {
    ghost stops = { λ stopper. stopper.stops };

    ghost last_stop = { λ stopper. stopper.last_stop };

    fn ask(&mut self, alloc: Global, name: &str) -> Result<bool, NoMemory>
        ensures answer { IfOk result (λ answer. answer ≡ answer_at self.old.answers self.old.asked) }
        ensures stop { result ≡ Ok true → self.new ≡ record self.old {
          asked = counted self.old.asked;
          stops = counted self.old.stops;
          last_stop = Some name.now;
        } }
        ensures kept { result ≢ Ok true → self.new ≡ record self.old { asked = counted self.old.asked } }
        ensures later { self.old.stops ≤ self.new.stops }
    {
        let place = self.asked;
        self.asked = place.saturating_add(1);
        let name_copy = String::from_str(alloc, name)?;
        let answer = self.answers.get(place as usize).copied().unwrap_or(false);
        if answer {
            self.stops = self.stops.saturating_add(1);
            self.last_stop = Some(name_copy);
        }
        Ok(answer)
    }
}
