//! The layer's code as the machine runs it: each law of the layer is met by the words of its image.
#![tactic(auto)]

mod image;
mod laws;
mod real;
mod routines;

pub use image::layer_words;
pub use laws::{
    blocks_run, faults_exit, faults_settle, premises, primitives_answer, the_image_is_linked,
    the_kernel_begins, the_kernel_is_called, the_kernel_is_left, the_layer_is_lawful,
};
pub use real::RealLayer;
