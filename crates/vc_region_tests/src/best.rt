mod calls;
mod filled;
mod large;
