//! The file that a node's state is in: it is made once, and opened by one process at a time.
//!
//! - `opening`: a file that is there, as a flash from which a life can be opened
//! - `making`: a file for a new node, under its name only once all of it is durable
//! - `folder`: the folder of a file: the calls that make one in it, and the name under which it is made
//! - `faults`: why there is none
//!
//! What is done with a file that is opened isn't said by contracts, since none can say what the system does. They say what the flash is that is
//! handed out: whatever the file holds, it is one from which a life can be opened, or there is a refusal (`node`). Of a file that is made they say
//! which calls on its folder make it, in which order, and with which octets (`make_in`, over any `Folder`). That the system does what it
//! answers is trusted. The rest stands here, in words, and in tests of the program.
//!
//! # To open
//!
//! 1. The name is that of a file, no link and no folder, and its only name. (A second name is the one under which it was made, where the process
//!    that made it died: that name is removed.)
//! 2. It is locked. The lock is advisory: it keeps other processes out that ask for it, as each that opens it so does. It goes with the process.
//! 3. It and its folder are synced, so that what is read is durable.
//! 4. It has 65,536 octets, and they are read.
//! 5. They are those of a node (`read_image` of `node_store`).
//!
//! Nothing is written before all of this holds.
//!
//! # To make
//!
//! The node is provisioned in memory. Its 65,536 octets are written beside the name, into a file under that name with `.new` behind it, which
//! nobody has: open to its owner alone, and synced. Then it gets its name, which nobody has, and loses the other; and the folder is synced. So a
//! process that dies leaves no file under the name, or the whole node.
#![tactic(auto)]

mod faults;
mod folder;
mod making;
mod opening;

pub use faults::{MakeFault, OpenFault};
pub use folder::{Folder, SystemFolder};
pub use making::{make_in, make_node};
pub use opening::{NodeFlash, open_node};
