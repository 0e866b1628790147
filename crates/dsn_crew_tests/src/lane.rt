//! Tests of lanes, over what `dsn_crew` makes public: who waits, and what comes if a half is gone.
mod full;
mod halves_gone;
mod hands;
mod item;
