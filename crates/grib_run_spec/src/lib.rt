//! The task of each job, and what a run of it leaves. These are definitions alone.
#![tactic(auto)]
