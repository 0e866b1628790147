//! Tests of whole crews, over what `dsn_crew` makes public.
mod client;
mod frames;
mod hold;
mod keepers;
mod outbox;
mod posting;
mod releasing;
mod side_by_side;
mod whole_crew;
