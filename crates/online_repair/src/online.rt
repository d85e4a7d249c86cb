//! The online repair of a readings file.
ghost use Rattle.std.specs.Prelude.{◌≡◌};
ghost use Rattle.online_repair.specs.Stages.{stage_after};

use crate::engine::window_of;
use crate::fault::OnlineFault;
use crate::start::not_online;
use crate::stream::Stream;
use order_window::OrderWindow;
use rule_file::Rules;
use series_csv::one_answer;
use std::alloc::Global;
use std::marker::Model;

/// Where a repair is.
#[derive(Clone, Copy)]
enum Stage {
    /// The file goes on.
    Open,
    /// It has been refused.
    Refused(OnlineFault),
    /// It has ended, and was not refused.
    Ended,
}

/// The online repair of a readings file, whose bytes are fed in pieces. After a refusal it refuses for ever.
#[derive(Drop)]
pub struct Online<'a> {
    stream: Stream<'a>,
    stage: Stage,
}

impl<'a> Model for Online<'a> {
    ghost use Rattle.online_repair.specs.StandsFor.{IsKept, OnlineView};

    ghost Value = { OnlineView };

    ghost view = { λ online. record { stream = online.stream; stage = online.stage } };

    ghost invariant = { λ online. IsKept online.stage online.stream };
}

impl<'a> Online<'a> {
    ghost use Rattle.std.specs.Prelude.{◌≡◌, ◌≢◌, ℕ, ◌≤◌, Bool, true, false, List, [], length, MatchOption, MatchResult, IfErr, OnOk, Some, None};
    ghost use Rattle.rule_file.specs.declared.rules.Rules.{Rules};
    ghost use Rattle.online_repair.specs.NotOnline.{not_online};
    ghost use Rattle.online_repair.specs.Output.{Output, IsOutput};
    ghost use Rattle.online_repair.specs.StandsFor.{StandsFor, HasRefused, HasEnded};
    ghost use Rattle.online_repair.specs.Feeds.{Feeds, HasWindow, LacksWindow};
    ghost use Rattle.online_repair.specs.Held.{held_rows};
    ghost use Rattle.online_repair.specs.declared.fault.OnlineFault.{OnlineFault};
    ghost use Rattle.order_window.specs.declared.window.OrderWindow.{OrderWindow};

    /// A repair by these rules, which has been fed nothing.
    ///
    /// # Errors
    ///
    /// `NotOnline` exactly where some rule is no speed rule, or names the sensor of a rule of a lower number: with the
    /// number of the first such rule. `Memory` may come at any time.
    pub fn start(alloc: Global, rules: &'a Rules) -> Result<Online<'a>, OnlineFault>
        ensures started { MatchResult result (λ online. (not_online rules.now ≡ None) × StandsFor online rules.now false [])
            (λ fault. fault ≢ OnlineFault.Memory → (number : ℕ) × (not_online rules.now ≡ Some number) × (fault ≡ OnlineFault.NotOnline number)) }
    {
        if let Some(rule) = not_online(rules) {
            return Err(OnlineFault::NotOnline { rule });
        }
        Ok(Online {
            stream: Stream::new(alloc, rules),
            stage: Stage::Open,
        })
    }

    /// Takes a piece of the file, and adds to `out` the header once it is read, and the repaired text of each row as it
    /// becomes ready. No `finish` may have been accepted before.
    ///
    /// # Errors
    ///
    /// The first refusal of the file, which is kept for ever; `out` then has the text before it. After want of memory,
    /// which may come at any byte, `out` has a part of the text for some of the first bytes, from its beginning on.
    #[tactic(none)]
    pub fn feed(&mut self, bytes: &[u8], out: &mut Vec<u8>) -> Result<(), OnlineFault>
        requires { ¬ HasEnded self.old }
        ensures feeds { (rules : Rules) (before : List ℕ)
            → StandsFor self.old rules false before → Feeds rules false before bytes.now result self.new out.old.items out.new.items }
        ensures stays_open { ¬ HasEnded self.new }
        ensures refuses { IfErr result (HasRefused self.new) }
        ensures refused { (fault : OnlineFault) → HasRefused self.old fault → (result ≡ Err fault) × (out.new.items ≡ out.old.items) }
    {
        if let Stage::Refused(fault) = self.stage {
            return Err(fault);
        }
        let fed = self.stream.feed(bytes, out);
        self.stage = stage_after(&fed, Stage::Open);
        fed
    }

    /// The file has ended: all rows are ready, if nothing is refused. No `finish` may have been accepted before, and after
    /// it is accepted the repair is done.
    ///
    /// # Errors
    ///
    /// As of `feed`.
    #[tactic(none)]
    pub fn finish(&mut self, out: &mut Vec<u8>) -> Result<(), OnlineFault>
        requires { ¬ HasEnded self.old }
        ensures ends { (rules : Rules) (before : List ℕ)
            → StandsFor self.old rules false before → Feeds rules true before [] result self.new out.old.items out.new.items }
        ensures ended { OnOk result (HasEnded self.new) }
        ensures refuses { IfErr result (HasRefused self.new) }
        ensures refused { (fault : OnlineFault) → HasRefused self.old fault → (result ≡ Err fault) × (out.new.items ≡ out.old.items) }
    {
        if let Stage::Refused(fault) = self.stage {
            return Err(fault);
        }
        let ended = self.stream.finish(out);
        self.stage = stage_after(&ended, Stage::Ended);
        ended
    }

    /// How many rows are held: those that are accepted and not ready. These rows are in the ring of the repair, and no
    /// others. It takes no memory.
    pub fn held(&self) -> u32
        ensures held { (rules : Rules) (ended : Bool) (bytes : List ℕ) (out : Output)
            → StandsFor self.now rules ended bytes → IsOutput rules ended bytes out → result ≡ length out.held }
        ensures rows { (rules : Rules) (ended : Bool) (bytes : List ℕ) (out : Output)
            → StandsFor self.now rules ended bytes → IsOutput rules ended bytes out → held_rows self.now ≡ out.held }
        ensures most { (rules : Rules) (ended : Bool) (bytes : List ℕ) → StandsFor self.now rules ended bytes → result ≤ rules.format.hold }
    {
        // The law that what was read is one thing only; it does nothing.
        one_answer();
        self.stream.held().min(u32::MAX as usize) as u32
    }

    /// The window of the sensor in a column, counted from 1: its keys are the successors of the sensor's last reading in the
    /// rows that are ready, its rates, decimals and span those of the sensor's rule, and it has room for as many keys as rows
    /// may be held. `None` exactly where the header is not read, or no rule names a sensor in this column. It takes no
    /// memory.
    #[tactic(none)]
    pub fn window(&self, col: u32) -> Option<&OrderWindow>
        ensures { (rules : Rules) (ended : Bool) (bytes : List ℕ) → StandsFor self.now rules ended bytes
            → MatchOption result (LacksWindow rules ended bytes col) (λ window. HasWindow rules ended bytes col window.now) }
    {
        // The law that what was read is one thing only; it does nothing.
        one_answer();
        match &self.stream.engine {
            Some(engine) => window_of(engine, col),
            None => None,
        }
    }
}

/// Where a repair is after this answer: at that stage, or refused.
fn stage_after(answer: &Result<(), OnlineFault>, stage: Stage) -> Stage
    ensures { result ≡ stage_after answer.now stage }
{
    match answer {
        Ok(()) => stage,
        Err(fault) => Stage::Refused(*fault),
    }
}
