// No code: this crate holds the worked examples of document 01 that are proved, in one table under one statement.
#![tactic(auto)]
