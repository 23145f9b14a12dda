// Document 01, "Building", as definitions. The inner forms are the crate build, the public calls build_calls.
#![tactic(auto)]
