use crate::cases::CASES;
use play::output::output;
use std::test::Fail;

#[test]
fn plays_the_vectors(rt: HostRuntime) -> Result<(), Fail> {
    for case in &CASES {
        let text = output(rt.alloc(), case.trace)?;
        assert_eq!(rt; text.as_str(), case.listing);
    }
    Ok(())
}
