//! Tests of agents and their collector, over what `dsn_crew` makes public.
mod asks;
mod collect;
mod gone;
mod limit;
mod turns;
mod unkept;
