mod doors;
mod trails;
mod turns;
mod turnstile;
