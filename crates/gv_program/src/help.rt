//! The texts of the program's help.

/// The version of the program.
pub const VERSION: &str = "0.1.0";

/// What the program is for.
pub const PROGRAM: &str = "Manages a GPU's address space by scripts, and replays drivers' logs";

/// What `run` does.
pub const RUN: &str =
    "Runs the script of FILE, or of standard input, and writes its replies to standard output";

/// What `serve` does.
pub const SERVE: &str = "Answers the lines of FILE, or of standard input, one after another";

/// What `--explain` says.
pub const EXPLAIN: &str = "Says why a line is bad";

/// What `--json` says.
pub const JSON: &str = "Writes each reply as one line of JSON";

/// What `FILE` says.
pub const FILE: &str = "The file to read instead of standard input";

/// The lines of a dialogue.
pub const SERVE_LINES: &str = "\
Each line of 'vmbind run' has the same reply here. Replies are written before the next read, so a
program may wait for a reply before it sends the next line, over a pipe or at a terminal. The input
may be of any length. A line has at most 1048576 bytes; a queue holds 65536 outcomes and waiting
requests. The dialogue goes on after a bad line, which changes nothing. Its reply is
  bad line K: REASON
A line that is out of memory did nothing, or all but its reply; 'turn' continues a half-done 'bind'
or 'turn'. Its reply is
  out of memory
Only a dialogue has these lines:
  put, or put CLAUSE ; CLAUSE ..
      Puts a request on its queue and does not serve it: 'put N', its number, or 'refused FAULT'.
  turn QUEUE
      Serves the next request of a queue: 'accepted N', its signals are raised; 'refused K FAULT';
      'waits NAME N have N' if a wait is not reached, and the request stays; 'idle' if there is none.
  giveup QUEUE
      Gives up the request for which 'turn' answered 'waits': 'notready NAME N have N', or 'idle'.
  forget QUEUE TO
      Drops the outcomes of a queue below the number TO, so that it takes more requests: 'forgot N';
      'refused NoOutcome' if TO is neither an outcome's number nor the next; 'refused Held N' if item
      N is still in the journal and has one of these outcomes.
  trim
      Frees memory that nothing needs: 'trimmed', and nothing else changes. 'refused Held N' if the
      journal has items, of which N is the oldest: settle or rewind them first.
  show ENTRY
      Prints what a journal item did, an operation a line, as 'bind' reads it; or 'withdrawal of N'.
  past ADDR
      Prints what an address reached by each journal item, newest first, as 'N live PLACE' or
      'N withdrawn PLACE'; then 'under PLACE', below all items. PLACE may be 'none'.
A 'bind' on a queue with requests, or with signals still to be raised, is a bad line: use 'turn'.

With --json each reply is one line of JSON, with the number of its line:
  {\"line\":2,\"accepted\":0}

Exit statuses:
  0  the input ended, even with bad lines, or help was asked for
  2  the arguments are refused
  3  standard input or standard output failed, or FILE can't be opened or read
  4  out of memory before the first line";

/// What `replay` does.
pub const REPLAY: &str =
    "Replays a driver's log: what an address reached, and which buffers were freed while mapped";

/// How `replay` ends.
pub const REPLAY_STATUSES: &str = "\
Exit statuses:
  0  the log was replayed, whatever was found, or help was asked for
  1  no line of the log is of the format, or of the address space
  2  the arguments are refused
  3  standard input or standard output failed, or FILE can't be opened or read
  4  out of memory";

/// What `--format` says.
pub const FORMAT: &str = "The format of the log: radv, amdgpu, xe, i915 or gpuvas";

/// What `--at` of a log says.
pub const ADDRESSES: &str = "Reports what this address, hexadecimal, reached and when; repeatable";

/// What `--flags` says.
pub const FLAGS: &str = "What the flags of amdgpu's events mean: entry or call";

/// What `--format` of a comparison says.
pub const LOG_FORMAT: &str = "B is a log of this format: radv, amdgpu, xe, i915 or gpuvas";

/// What `--space` says.
pub const SPACE: &str = "Takes this address space only, as a report names it";

/// What `--quiet` says.
pub const QUIET: &str = "Shows no progress on a terminal";

/// What `--pid` says.
pub const PID: &str = "Takes this process only: its events, or its first address space";

/// What `--all` says.
pub const ALL: &str = "Reports all places of a finding, not only three";

/// What `--json` of a log says.
pub const AS_JSON: &str = "Writes the report as one line of JSON";

/// What `--script` says.
pub const AS_SCRIPT: &str = "Writes a script instead of the report";

/// What `--draw` says.
pub const AS_PICTURE: &str =
    "Writes a picture instead of the report, as SVG, around the first --at if there is one";

/// What `draw` does.
pub const DRAW: &str = "Runs a script and writes a picture of it, as SVG";

/// How `draw` ends.
pub const DRAW_STATUSES: &str = "\
Exit statuses:
  0  the picture was written, or help was asked for
  1  the script has a bad line: nothing is written
  2  the arguments are refused
  3  standard input or standard output failed, or FILE can't be opened or read
  4  out of memory";

/// What `--at` of a picture says.
pub const AT: &str = "Draws only requests that changed a page near this address, hexadecimal";

/// What `--width` says.
pub const WIDTH: &str = "The width of the picture in pixels, 1 to 16384; less than 900 is 900";

/// What `compare` does.
pub const COMPARE: &str = "Compares two lists of mappings, or a list and the end of a log";

/// How `compare` ends.
pub const COMPARE_STATUSES: &str = "\
Exit statuses:
  0  the lists are alike, or help was asked for
  1  the lists differ
  2  the arguments are refused, A or B is no list, or a log gives no list
  3  standard output failed, or A or B can't be opened or read
  4  out of memory";

/// What a list is.
pub const LIST: &str = "A file: the reply to 'map' or a kernel's gpuvas; with --format B is a log";

/// What `threads` does.
pub const THREADS: &str =
    "Runs a script from standard input; each queue serves its requests on its own thread";

/// What `--queues` says.
pub const QUEUES: &str = "The number of queues, 1 to 16";

/// What `--turns` says.
pub const TURNS: &str = "Gives up a request after this many looks at a wait, 1 to 1000000000";

/// A threads script and an example.
pub const THREADS_SCRIPT: &str = "\
The script is read from standard input, and the replies are written to standard output. It has the
lines of 'vmbind run' in three parts:
  space, limits, buffer, timeline, raise
      Run in order, before the queues start.
  bind
      Put in order, each on its queue, and served by the queue's thread. They have no reply.
  map, at, tables, uses, value, told, journal
      Answered after all queues have ended.
Empty lines and comments may be anywhere. Between the replies of the first and of the last part is a
line for each queue. It counts requests: 'put' on the queue, 'told' with an outcome, 'left' without.
A queue takes 65536 requests; those after them are not put.

The entries' numbers, their order, and the outcomes of requests that overlap depend on which queue
is served first.

An example of a script, for --queues 2:
  buffer a 8
  bind queue 0 ; map 0x0 0x2000 a 0x0
  bind queue 1 ; map 0x4000 0x2000 a 0x2000
  map
Its replies:
  ok
  queue 0 put 1 told 1 left 0
  queue 1 put 1 told 1 left 0
  0000000000000000 0000000000002000 a 0000000000000000 rw
  0000000000004000 0000000000006000 a 0000000000002000 rw

Exit statuses:
  0  the script was run to its end, or help was asked for
  1  the script has a bad line, or is too long
  2  the arguments are refused
  3  standard input or standard output failed
  4  out of memory
  5  a queue's thread did not start, or the two ends of a queue disagree";

/// The lines of a script, the exit statuses and an example.
pub const SCRIPT: &str = "\
The lines of a script:
  space START LEN RSTART RLEN
      Sets the address space and its reserved region: the start and the length of each, in bytes,
      multiples of 4096. First line only.
  limits BUFFERS MAPPINGS ITEMS
      Limits the live buffers, mappings and journal items. Before all lines but 'space'.
  buffer NAME PAGES
      Makes a buffer of PAGES pages of 4096 bytes.
  destroy NAME
      Destroys a buffer that no mapping in the list or in an undo value names and no job uses. Its
      name stays declared.
  uses NAME
      Prints how many mappings of a buffer are in the list, and how many are kept in undo values.
  timeline NAME
      Declares a timeline, at 0. There are at most 64.
  raise NAME NUM, value NAME
      'raise' raises a timeline to NUM if it is lower. Both print its number.
  bind, or bind CLAUSE ; CLAUSE ..
      One request, applied whole or not at all: 'accepted N', N the entry; 'refused K FAULT', K the
      operation that is refused, from 0; 'notready NAME N have N' if a wait is not reached; or
      'refused FAULT' if its queue has taken 65536 requests. Only an accepted one changes mappings.
  plan OPERATION
      Prints the unmap, remap and map steps of the operation, and changes nothing.
  map
      Prints the mappings.
  at ADDR
      Prints what an address reaches, by the page table.
  tables
      Prints how many tables the page table has at its levels 4, 3, 2, 1 and 0.
  rewind
      Undoes the newest journal item.
  withdraw ENTRY
      Undoes an older request that no live later one touches. The withdrawal is an item too.
  settle TO
      Makes the items below TO permanent and drops their undo values: they can't be undone any more.
  journal
      Prints the items: their numbers, queues and requests' numbers, and which are withdrawn.
  told QUEUE
      Prints the outcomes of the requests of a queue, 0 to 15.
  job ACCESS ; ACCESS ..
      Begins a job, which holds the buffers that its accesses reach; prints the place of each.
  end JOB
      Ends a job.

A CLAUSE is an OPERATION, 'unmapall NAME', 'wait NAME NUM', 'signal NAME NUM', or once 'queue Q'.
An ACCESS is 'read ADDR' or 'write ADDR'. An OPERATION is one of:
  map ADDR LEN NAME OFFSET [ro]
      Maps LEN bytes at ADDR to the buffer NAME from its byte OFFSET on.
  zero ADDR LEN [ro]
      Maps LEN bytes at ADDR to no buffer: they read as zeros.
  unmap ADDR LEN
      Unmaps LEN bytes at ADDR.
With 'ro' the mapping is read-only.

A FAULT is one of:
  Unaligned, Empty, OutOfSpace, Reserved, NoBuffer, OutOfBuffer, TooManyMappings
      of an operation; the first in this order is answered
  TooManyOps, JournalFull, OutOfMemory, QueueSpent
      of a request; with the first three 'refused 0' may mean the whole request
  BadSize, TooManyBuffers, NoBuffer, Mapped N, Kept N, InUse N
      of 'buffer' and 'destroy': N mappings in the list or in undo values, or N jobs
  NoEntry, NotABind, Withdrawn, Touched N, Crossed N
      of 'rewind', 'withdraw' and 'settle': N the later entry, or the later withdrawal
  TooManyAccesses, TooManyJobs, Unmapped N, WriteToReadOnly N, Conflict N, NoJob
      of 'job' and 'end': N the access, counted from 0, or the other job

Numbers are decimal, or hexadecimal after 0x; in 'queue' decimal only. '#' begins a comment line.
One space separates words, and a line end ends every line. The first bad line ends the run.

Exit statuses:
  0  the script was run to its end, or help or the version was asked for
  1  the script has a bad line, or is too long; 'vmbind replay' found no line of the format, or of the
     address space; the lists of 'vmbind compare' differ
  2  the arguments are refused, or a list or log of 'vmbind compare'
  3  standard input or standard output failed, or a FILE can't be opened or read
  4  out of memory
  5  the queues of 'vmbind threads' did not start, or disagree

An example of a script:
  buffer b 4
  bind map 0x0 0x4000 b 0x0
  bind unmap 0x1000 0x1000
  map
Its replies:
  ok
  accepted 0
  accepted 1
  0000000000000000 0000000000001000 b 0000000000000000 rw
  0000000000002000 0000000000004000 b 0000000000002000 rw

Another one:
  bind zero 0x0 0x2000
  bind zero 0x4000 0x1000 ro
  withdraw 0
  map
  rewind
  map
Its replies:
  accepted 0
  accepted 1
  withdrawn 0 as 2
  0000000000004000 0000000000005000 zero ro
  rewound 2
  0000000000000000 0000000000002000 zero rw
  0000000000004000 0000000000005000 zero ro";
