//! Runs of scripts, the words of the command line, and the tables of a whole network.

pub use all_tables::{Wrong, check_tables, tables_of};
pub use beside::{BesideEnd, run_beside, run_input_beside};
pub use command_line::{Options, Order, Task, WordFault, read_words};
pub use console::{
    CheckEnd, Fault, ScriptEnd, check_given, check_net, read_net, run_input, run_script,
    write_fault,
};
pub use serving::{Channel, DeskEnd, Farewell, Rules, SessionEnd, Silent, run_seats};
