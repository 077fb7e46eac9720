//! What stands in a book, what follows from it, and the law over whole runs. Nothing here knows of memory.
#![tactic(auto)]
