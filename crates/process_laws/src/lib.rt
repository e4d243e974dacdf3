//! The law over processes: lives that different processes led, one after another over one flash that outlasts them, are a run. So over all of
//! them no key and nonce of the node's own addresses seals two plaintexts, no message is delivered twice, and no audit of what they told, put
//! behind one another, finds the one or the other. There is no code here: each law is the contract of a function that does nothing.
//!
//! - `processes`: lives of processes are a run, and what follows for all of them; a life of `mesh_node` that went on as one of them
//! - `outputs`: an audit of what was told of the lives of a run, in whatever order the lines of each life follow, and of the whole or of a part
//!
//! In `specs/`, `Processes` says what lives of processes are, `Outputs` what they told, and `Laws` has the laws.
//!
//! Of a process that is killed no clause speaks, since none speaks of a call that doesn't return: that it is one of these is argued, and not proved.
//! It did what one does of which the call that it was in fails, done as far as it was, and each later call of what is outside (its flash, a source, a
//! sink) fails and changes nothing. Of that one the clauses speak, since each of these calls may fail at any time. So what it left is one of the
//! images of its flash, from which a flash in a file is then opened, and what it told is a front of what is told of its life.
#![tactic(auto)]

pub mod outputs;
pub mod processes;
