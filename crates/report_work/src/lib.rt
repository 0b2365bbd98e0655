//! What is at hand while contexts and reports of a module are found, from its end to its begin, as plain sets and contexts, and what
//! each step makes of it. There is no program here: these are definitions, in which the contracts of `report_state` and the forms of
//! `report_plan` are stated.
#![tactic(auto)]
