// No code: this crate states and proves that sound DER is exactly what X.690 writes for a tree of elements.
#![tactic(auto)]
