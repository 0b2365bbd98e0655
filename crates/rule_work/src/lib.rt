//! What is at hand while the rules of a module are applied, as plain types and maps, and what each step makes of it. There is no
//! program here: these are definitions, in which the contracts of `rule_state` and the forms of `infer_plan` are stated.
#![tactic(auto)]
