// What a task answers: each answer is that of the line that it describes.
ghost use Rattle.std.specs.Prelude.{◌≡◌, ◌<◌, ◌≤◌, if◌then◌else◌, Some, None, MatchOption, nat_lt};
ghost use Rattle.model.specs.Task.{move_at};
ghost use Rattle.sets.specs.Members.{members};
ghost use Rattle.moves.specs.Lists.{literals_of};
ghost use Rattle.moves.specs.Parts.{move_of};
ghost use Rattle.task.specs.Views.{task_of, line_of};

use crate::task::Task;
use moves::{Context, Literals, Move};
use sets::IndexSet;

impl Task {
    pub fn stations(&self) -> u8
        ensures value { result ≡ (line_of self.now).stations }
        ensures range { (1 ≤ result) × (result ≤ 16) }
    {
        self.lists.sizes.stations
    }

    pub fn fluents(&self) -> u8
        ensures value { result ≡ (line_of self.now).fluents }
        ensures range { (1 ≤ result) × (result ≤ 128) }
    {
        self.lists.sizes.fluents
    }

    pub fn moves(&self) -> u8
        ensures value { result ≡ (line_of self.now).moves }
        ensures range { (1 ≤ result) × (result ≤ 64) }
    {
        self.lists.sizes.moves
    }

    // The fluents that are true at the start.
    pub fn start(&self) -> IndexSet
        ensures { members result ≡ (line_of self.now).start }
    {
        self.lists.start
    }

    pub fn goal(&self) -> Literals
        ensures { literals_of result ≡ (task_of self.now).goal }
    {
        self.lists.goal
    }

    // Is the goal met on a line?
    pub fn met(&self, line: IndexSet) -> bool
        ensures { result ≡ (line_of self.now).goal (members line) }
    {
        self.goal().hold(line)
    }

    // The move with a number, if the task has one.
    pub fn get(&self, a: u8) -> Option<&Move>
        ensures { MatchOption result ((line_of self.now).moves ≤ a) (λ m. (a < (line_of self.now).moves) × (move_of m.now ≡ move_at (task_of self.now).moves a)) }
    {
        self.lists.moves.get(usize::from(a))
    }

    // The station of a move, if the task has that move.
    pub fn station(&self, a: u8) -> Option<u8>
        ensures { result ≡ (if nat_lt a (line_of self.now).moves then Some ((line_of self.now).station a) else None) }
    {
        self.get(a).map(|found| found.station)
    }

    // Do the needs of a move hold? A number without a move needs nothing.
    pub fn ready(&self, a: u8, line: IndexSet) -> bool
        ensures { result ≡ (line_of self.now).ready a (members line) }
    {
        self.get(a).is_none_or(|found| found.needs.hold(line))
    }

    // The companions of a move. A number without a move has none.
    pub fn companions(&self, a: u8) -> Literals
        ensures { literals_of result ≡ (move_at (task_of self.now).moves a).companions }
    {
        self.get(a)
            .map_or(Literals::empty(), |found| found.companions)
    }

    // What a move makes true and false in a step. A number without a move does nothing.
    pub fn results(&self, a: u8, context: Context) -> Literals
        ensures sets { members result.plain ≡ (line_of self.now).sets (members context.line) (members context.moves) a }
        ensures clears { members result.negated ≡ (line_of self.now).clears (members context.line) (members context.moves) a }
    {
        self.get(a)
            .map_or(Literals::empty(), |found| found.results(context))
    }
}
