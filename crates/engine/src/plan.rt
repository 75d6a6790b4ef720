// A plan: the rule of a task that is not outright, as it was read off the table. It is data and no closure, because the
// table, which it was read from, changes while it is done; and so it can be compared with the rule.
use diagrams::Task;
use orders::Order;

// The task that is entered first, and what is done with its answer.
#[derive(Clone, Copy)]
pub struct Plan {
    pub low: Task,
    pub rest: Rest,
}

// What is done with the first answer.
#[derive(Clone, Copy)]
pub enum Rest {
    // it is the answer
    Pass,
    // it is the low part of the node of x and y whose high part is known
    Over(u8, u8, u32),
    // it is the high part of the node of x and y whose low part is empty
    Lift(u8, u8),
    // one more task is entered
    Then(Task, Last),
}

// What is done with the two answers.
#[derive(Clone, Copy)]
pub enum Last {
    // they are the parts of the node of x and y
    Both(u8, u8),
    // they are joined
    Join,
    // the second is made the high part of the node of x and y, and joined to the first
    Raise(u8, u8),
    // the second is carried by the order, and joined to the first
    Move(Order),
}

// Work on two sets, whose orders are told by which of the two have them. `Task` itself keeps a case for each of the three:
// what is proved of a task names its cases.
#[derive(Clone, Copy)]
pub enum Pairing {
    Join,
    Meet,
    Without,
}
