// The slot of a core record and the claim of a task.
#![tactic(auto)]

// A task's place in a core record. `budget` is the paper's time; `until` is the ticks until the next release, `remaining` the ticks still owed.
#[derive(Clone, Copy)]
pub struct Slot {
    pub period: u32,
    pub budget: u32,
    pub until: u32,
    pub remaining: u32,
}

// A task, by its number, that wants the core at a tick, and its deadline. Task 0 stands for none, as in the paper's answers.
#[derive(Clone, Copy)]
pub struct Claim {
    pub task: usize,
    pub deadline: u32,
}
