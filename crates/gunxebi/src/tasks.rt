// Tasks in words: in short beside a plan, or in full alone.
ghost use Rattle.std.specs.Prelude.{◌≡◌, true, false};

use crate::words::{Count, FLUENTS, List, MOVES, Terms, plain};
use moves::{Effect, Move};
use std::fmt;
use task::Task;

// The words that tasks in short and in full do not share.
#[derive(Clone, Copy)]
struct Style {
    // Are things of a kind counted alone, or with their numbers?
    is_numbered: bool,
    start: &'static str,
    companions: Terms,
    alongside: Terms,
    // What stands before moves alongside that are the whole condition.
    alone: &'static str,
    results: Terms,
    // What stands between "effect" and what it is.
    gap: &'static str,
    no_effects: &'static str,
}

const SHORT: Style = Style {
    is_numbered: false,
    start: "start",
    companions: MOVES,
    alongside: MOVES,
    alone: "if ",
    results: FLUENTS,
    gap: ": ",
    no_effects: "",
};

const FULL: Style = Style {
    is_numbered: true,
    start: "true at the start",
    companions: Terms {
        plain: "needs move",
        negated: "bars move",
        empty: "none",
    },
    alongside: Terms {
        plain: "with move",
        negated: "without move",
        empty: "none",
    },
    alone: "",
    results: Terms {
        plain: "fluent",
        negated: "not fluent",
        empty: "nothing",
    },
    gap: ", ",
    no_effects: "    effects: none\n",
};

// Things of a kind: "3 fluents", or "3 fluents (0 to 2)".
#[derive(Clone, Copy)]
struct Size {
    n: u8,
    thing: &'static str,
    is_numbered: bool,
}

impl fmt::Display for Size {
    fn fmt<W: fmt::Write>(&self, f: &mut fmt::Formatter<W>) -> fmt::Result {
        let count = Count(usize::from(self.n), self.thing);
        match self.n {
            1 if self.is_numbered => write!(f, "{count} (0)"),
            2.. if self.is_numbered => write!(f, "{count} (0 to {})", self.n - 1),
            _ => write!(f, "{count}"),
        }
    }
}

// The sizes of a task: "2 stations, 3 fluents, 2 moves".
#[derive(Drop)]
pub struct Sizes<'a> {
    task: &'a Task,
    style: Style,
}

impl<'a> Sizes<'a> {
    pub fn short(task: &'a Task) -> Sizes<'a>
        ensures task { result.task.now ≡ task.now }
        ensures counted { result.style.is_numbered ≡ false }
    {
        Sizes { task, style: SHORT }
    }
}

impl fmt::Display for Sizes<'_> {
    fn fmt<W: fmt::Write>(&self, f: &mut fmt::Formatter<W>) -> fmt::Result {
        let is_numbered = self.style.is_numbered;
        let size = |n, thing| Size {
            n,
            thing,
            is_numbered,
        };
        let stations = size(self.task.stations(), "station");
        let fluents = size(self.task.fluents(), "fluent");
        let moves = size(self.task.moves(), "move");
        write!(f, "{stations}, {fluents}, {moves}")
    }
}

// An effect: "if fluent 0, not move 1: fluent 2", or "always: fluent 2".
#[derive(Clone, Copy)]
struct EffectInWords {
    effect: Effect,
    style: Style,
}

impl fmt::Display for EffectInWords {
    fn fmt<W: fmt::Write>(&self, f: &mut fmt::Formatter<W>) -> fmt::Result {
        let EffectInWords { effect, style } = *self;
        let conditions = List::new(FLUENTS, effect.conditions);
        let alongside = List::new(style.alongside, effect.alongside);
        let results = List::new(style.results, effect.results);
        match (conditions.is_empty(), alongside.is_empty()) {
            (true, true) => write!(f, "always: {results}"),
            (false, true) => write!(f, "if {conditions}: {results}"),
            (true, false) => write!(f, "{}{alongside}: {results}", style.alone),
            (false, false) => write!(f, "if {conditions}, {alongside}: {results}"),
        }
    }
}

// A move, below the line that names it.
#[derive(Drop)]
struct MoveInWords<'a> {
    one: &'a Move,
    style: Style,
}

impl fmt::Display for MoveInWords<'_> {
    fn fmt<W: fmt::Write>(&self, f: &mut fmt::Formatter<W>) -> fmt::Result {
        let style = self.style;
        let needs = List::new(FLUENTS, self.one.needs);
        let companions = List::new(style.companions, self.one.companions);
        write!(f, "    needs: {needs}\n    companions: {companions}\n")?;
        for effect in &self.one.effects {
            let effect = EffectInWords {
                effect: *effect,
                style,
            };
            write!(f, "    effect{}{effect}\n", style.gap)?;
        }
        if self.one.effects.is_empty() {
            f.write_str(style.no_effects)?;
        }
        Ok(())
    }
}

// A task: its sizes, start and goal, then its moves.
#[derive(Drop)]
pub struct TaskInWords<'a> {
    task: &'a Task,
    style: Style,
}

impl<'a> TaskInWords<'a> {
    pub fn short(task: &'a Task) -> TaskInWords<'a>
        ensures task { result.task.now ≡ task.now }
        ensures counted { result.style.is_numbered ≡ false }
    {
        TaskInWords { task, style: SHORT }
    }

    pub fn full(task: &'a Task) -> TaskInWords<'a>
        ensures task { result.task.now ≡ task.now }
        ensures numbered { result.style.is_numbered ≡ true }
    {
        TaskInWords { task, style: FULL }
    }
}

impl fmt::Display for TaskInWords<'_> {
    fn fmt<W: fmt::Write>(&self, f: &mut fmt::Formatter<W>) -> fmt::Result {
        let TaskInWords { task, style } = *self;
        let sizes = Sizes { task, style };
        let start = List::new(FLUENTS, plain(task.start()));
        let goal = List::new(FLUENTS, task.goal());
        write!(
            f,
            "task: {sizes}\n  {}: {start}\n  goal: {goal}\n",
            style.start
        )?;
        for (a, one) in (0..task.moves()).filter_map(|a| task.get(a)).enumerate() {
            let station = one.station;
            let words = MoveInWords { one, style };
            write!(f, "  move {a} of station {station}\n{words}")?;
        }
        Ok(())
    }
}
