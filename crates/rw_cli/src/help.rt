//! The texts after the options of each command's help: examples, what the command reads and prints,
//! and its exit statuses.

pub(crate) const ALL: &str = "\
Example:
  rwship receive --listen 127.0.0.1:9090 --connections 10 > held &
  rwship send --dir data/wal --to 127.0.0.1:9090

'rwship help COMMAND' shows the options and an example of each command.
docs/OPERATING.md explains how to run them, and docs/SETTINGS.md the settings
file.";

pub(crate) const BODY: &str = "\
Example:
  rwship body < data/wal/00000000 > body

Exit status: 0; 1 if the log has a fault (docs/OPERATING.md lists the numbers);
2 for bad options; 3 out of memory; 4 if standard input or output failed.";

pub(crate) const LOG: &str = "\
Example:
  printf 'series 1 {__name__=\"up\"}\\nsample 1 1000 1\\n' | rwship log --dir wal

docs/REPLAY.md describes the lines, which a script has after the word 'log'. The
folder of --dir must exist. Files that it has already are not removed: 'send'
ships them too if their numbers go on.

Exit status: 0; 1 for a bad line or a full segment; 2 for bad options; 3 out of
memory; 4 if a file, standard input or output failed.";

pub(crate) const PLAN: &str = "\
Example:
  rwship plan --settings rwship.toml < data/wal/00000000

  rwship plan --settings rwship.toml --dir data/wal --checkpoint

It prints 'REFERENCE kept NUMBER LABELS' or 'REFERENCE filtered LABELS' for each
series, and how many samples are kept and filtered. With --dir it reads the
segments of a folder as 'send' does. docs/SETTINGS.md explains the rules.

Exit status: 0; 1 if the log has a fault; 2 for bad options or settings; 3 out
of memory; 4 if a file, standard input or output failed.";

pub(crate) const INSPECT: &str = "\
Example:
  rwship inspect --dir data/wal

  rwship inspect --dir data/wal --at 6 4711

It prints a row for each segment, a row for all of them, and how many samples
'send' would drop without rules. docs/OPERATING.md shows a table, and what is
printed at a fault. With --at it prints the entry at each position instead, and
the labels of a sample.

Exit status: 0; 1 if the log has a fault, after its report, or if a position has
no entry; 2 for bad options; 3 out of memory; 4 if a file, standard input or
output failed.";

pub(crate) const REPLAY: &str = "\
Example:
  printf 'log series 1 {__name__=\"up\"}\\nlog sample 1 1000 1\\nsettle\\n' |
    rwship replay

Sender, network and receiver run on one thread. docs/REPLAY.md lists the events,
and docs/SETTINGS.md the settings.

Exit status: 0; 1 for a bad line; 2 for bad options or settings; 3 out of
memory; 4 if a file, standard input or output failed.";

pub(crate) const SETTINGS: &str = "\
Example:
  rwship settings rwship.toml

It prints a settings file with all keys, also those that FILE leaves out.
docs/SETTINGS.md explains the keys and the faults.

Exit status: 0; 2 for bad options or settings; 3 out of memory; 4 if FILE or
standard output failed.";

pub(crate) const SEND: &str = "\
Example:
  rwship send --settings rwship.toml --dir data/wal --to receiver.example:9090

  rwship send --dir data/wal --checkpoint --to receiver.example:9090 \\
    --follow --stop-file stop

  rwship send --dir data/wal --to receiver.example:9090 \\
    --progress --metrics 127.0.0.1:9200 --fail-on-drop

DIR is the folder 'wal' of a server that has stopped, or a copy of it; with
--follow it is that of a server that runs. A server removes its oldest segments
and keeps their series in a checkpoint: use --checkpoint unless DIR has the log
from its first segment on. Prometheus compresses its log by default: use
--wal-compression, with which plain records are read, too.

--follow ends when standard input ends or, with --stop-file, when FILE exists:
it ships what the log has, and prints its report. A line 'hard', on standard
input or as the first line of FILE, ends it at once. The report lists each
sample that was dropped or is left. docs/OPERATING.md explains its lines, and
docs/SETTINGS.md the settings.

Exit status: 0 if each sample is acknowledged, dropped or filtered (look for
'dropped' lines); 1 if the log has a fault, with --fail-on-drop if samples were
dropped, with --fail-on-skip if records were skipped that may hold samples, with
--fail-on-empty if DIR has no segment, with --fail-on-gap if a segment is missing
between two; 2 for bad options or settings; 3 out of memory; 4 if a file, the
look-up of HOST or standard output failed, if a segment is missing with --follow
or --checkpoint, after a line 'hard', or with --stop-on-refusal or --give-up.";

pub(crate) const RECEIVE: &str = "\
Example:
  rwship receive --listen 127.0.0.1:9090 --connections 10 > held

  rwship receive --listen 127.0.0.1:9090 --until-eof --stop-file stop \\
    --progress --metrics 127.0.0.1:9201 > held

  rwship receive --listen 127.0.0.1:9090 --until-eof --stop-file stop \\
    --dir kept --quiet

With --until-eof it serves any number of connections, at most 1000 at once,
until standard input ends or, with --stop-file, until FILE exists. Requests that
have begun are finished, unless the line 'hard' comes, on standard input or as
the first line of FILE. If one more client comes, a few connections are closed
that are silent for a second, or whose requests come slower than 1000 bytes a
second. With --connections N it ends when N connections have ended; each attempt
of a sender is one. What it holds is printed at the end.

With --dir each request is written to the log in DIR and synced before it is
acknowledged, and at its start the receiver holds what DIR has. DIR must exist,
and may be empty. The receiver marks it by a file 'rwship-receive'; a folder
that has segments and not this file, or that is in the folder of a Prometheus,
is refused without --adopt, one whose first segments are missing without
--allow-missing-start, and one whose last segment has a whole record after a
fault without --cut-at-fault. Without --dir what it holds is in memory only.
After a write to DIR that failed each request is answered with 503 until the
receiver is stopped; with --end-on-write-error it stops at once.
docs/OPERATING.md explains more, and docs/SETTINGS.md the settings.

Exit status: 0; 1 if the log in DIR has a fault; 2 for bad options or settings;
3 out of memory; 4 if a file, the folder DIR, the network or standard output
failed.";

pub(crate) const VERSION: &str = "\
Example:
  rwship version

It prints what 'rwship --version' prints.

Exit status: 0; 2 for bad options; 3 out of memory; 4 if standard output failed.";
