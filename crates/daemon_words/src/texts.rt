//! What the program tells of itself.
#![tactic(auto)]

/// What `--version` prints.
pub const VERSION: &str = "meshnoded 0.1.0\n";

/// What `--help` prints.
pub const HELP: &str = "\
meshnoded: a Bluetooth mesh node whose state is in a file

  meshnoded init FILE UNICAST ELEMENTS IV FLAGS NETIDX
      makes the file of a new node, for its owner alone. Its network key and its
      device key are read from standard input: two words of 32 hexadecimal digits.
      UNICAST (4 digits) is the address of the first of 1 to 4 ELEMENTS, IV (8) the
      IV Index, FLAGS 00 to 03 (02 is IV Update in Progress), NETIDX (3) the index
      of the network key
  meshnoded run FILE [--bearers N] [--hex] [--clock]
      runs the node: a line of standard input is a phase, and what becomes of it is
      told on standard output before the next line is read. N is 1 to 8; without it
      there is one bearer. --hex shows the octets of network PDUs. With --clock the
      node tells itself what time passed; without it time is what lines tick say
  meshnoded show FILE
      tells what the file stores, but no key
  meshnoded check FILE
      tells whether the file holds a node
  meshnoded --help
  meshnoded --version

It ends with 0 where all was done; what went wrong is told on standard error.
";
