//! The page that `help` prints.

/// The commands, and a small journal to start from.
pub(crate) const PAGE: &str =
    "Program: gibzurg settles the book of a month from a journal, or reads the day of a meter, and says what it did.
Command settle FILE: runs the journal in FILE and answers every call in it. A FILE of one hyphen is standard input.
Command audit FILE: runs the journal in FILE with its contracts, without them, and with only what stands at the end, and says whether the three books agree.
Command meter FILE: reads the day of a meter from FILE, a dump of 1536 bytes, and says what its 24 hours have. One hyphen is standard input here too.
Command help: prints this page, as no command at all does.
Journal: text, one call to a line. A line that is blank or begins with a number sign is passed over.
Example: the lines from here on are a small journal.
open agents 2 days 1 weekday monday
agent 1 role generator capacity 4000 power 0
agent 2 role distributor capacity 0 power 0
contract 1 kind 1 seller 1 buyer 2 place market first 0 last 23 price 50000 peak 100 medium 100 base 100 margin 0
post hour 8 price 60000
line class normal cause 0 injected 1000 withdrawn 0 gross 0 factor 95000 cost 0
line class normal cause 0 injected 0 withdrawn 970 gross 0 factor 102000 cost 0
statement 2
# the same posting as a packet
packet 08E0D403020100E807000098E60500010000CA0700F09C0600
statements
withdraw hour 8
cancel 1
close";
