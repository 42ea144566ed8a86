//! The definitions of the script language, over the values of JSON.
#![tactic(auto)]
