// The page of no surfaces.
use mesh_info::view_of;
use std::test::Fail;

// What a page has before the end of its title, and its coordinates in base64.
fn parts_of(page: &str) -> Option<(&str, &str)> {
    let (head, rest) = page.split_once("</title>")?;
    let (_, rest) = rest.split_once("const base64 = '")?;
    let (numbers, _) = rest.split_once("'")?;
    Some((head, numbers))
}

#[test]
fn no_surfaces(rt: HostRuntime) -> Result<(), Fail> {
    let page = view_of(rt.alloc(), b"", &[], &[])?;
    let Some((head, numbers)) = parts_of(std::str::from_utf8(&page)?) else {
        return Err(Fail::from("no page"));
    };
    assert!(rt; head.ends_with("<title>"));
    assert!(rt; numbers == "");
    Ok(())
}
