//! What dialogues mean: tables and their limits; the tables of free dialogues, bars and pairs, of drawing calls and of files; what is wrong
//! with a file, and the file of a drawing. Definitions and lemmas only: the code stands in the crates above.
#![tactic(auto)]
