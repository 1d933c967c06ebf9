// What every layer above shares and none of them owns: the words on lists, in specs/, and sixteen bytes as two words.
#![tactic(auto)]

pub mod words;
