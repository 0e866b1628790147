//! Tests of frames, requests and answers in bytes, over what `dsn_frame` makes public.
mod answers;
mod bodies;
mod buffers;
mod frames;
