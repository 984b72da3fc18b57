#![tactic(auto)]

// Trees and expressions, and which trees an expression denotes: definitions and their laws. There is nothing to run.
